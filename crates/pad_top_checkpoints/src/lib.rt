//! Tests of the command `replay` on inputs with checkpoints, and against the plain program.
#![tactic(auto)]

#[cfg(test)]
mod tests;
