// The laws of a problem's text: what is read, what is written, and which texts are accepted. They stand in specs/, apart from the reader and the writer, so
// that what cites them is rechecked alone.
#![tactic(auto)]
