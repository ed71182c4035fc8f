// For a driver in Rust: words and draws in a row from a lent generator, each by the library's call by value.
#![tactic(auto)]

mod value_loops;
