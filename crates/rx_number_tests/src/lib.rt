//! Tables of cases for the whole numbers and the orders of texts. The crate has nothing else.
#![tactic(auto)]

#[cfg(test)]
mod tests;
