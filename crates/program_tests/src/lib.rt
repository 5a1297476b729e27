#![tactic(auto)]
//! Tests of the server and of the program: of `digest`, `server_events`, `server_core`, `script`,
//! `tool_programs`, `command_line` and `figures`.

#[cfg(test)]
mod tests;
