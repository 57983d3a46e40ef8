// Stored answers of the leaves, attitudes, vectors and tensors: each case is run through the C interface and compared to the last bit, a NaN matching any NaN.
// A case is its function's number and its words: those that go in first, then those that come out.
#![tactic(auto)]

mod leaves;
mod shapes;

// Whether the port gives what is stored, for functions below 100.
// A stored function's number is matched where the function is called: an enum between would list the same arms twice, and be no plainer.
pub fn holds(number: u64, v: &[u64; 1024]) -> bool {
    if number < 50 {
        return leaves::holds(number, v);
    }
    shapes::holds(number, v)
}
