// Stored answers of the actuators, control rows and the profile, run and compared as those of `leaf_cases`.
#![tactic(auto)]

mod courses;
mod rigs;

// Whether the port gives what is stored, for functions from 100 to 199.
// A stored function's number is matched where the function is called: an enum between would list the same arms twice, and be no plainer.
pub fn holds(number: u64, v: &[u64; 1024]) -> bool {
    if number < 150 {
        return rigs::holds(number, v);
    }
    courses::holds(number, v)
}
