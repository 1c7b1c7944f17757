// The plan rules: what they say stands in specs/, the code that checks them in the rooms above.
#![tactic(auto)]

// What checking finds on a plan that isn't accepted: the lowest rule that is broken, by its number, with the lowest row that breaks it.
#[derive(Clone, Copy)]
pub struct Broken {
    pub rule: usize,
    pub row: usize,
}
