//! The tests, by the crates that they try.

mod cases;
mod command_line_help;
mod command_line_mistakes;
mod command_line_tests;
mod command_lines;
mod digest_tests;
mod instance_tests;
mod metrics_tests;
mod metrics_text_wanted;
mod port_check_tests;
mod probe_tests;
mod program_status_tests;
mod replay_lines_tests;
mod replay_script_tests;
mod script_tests;
mod server_core_tests;
mod server_events_tests;
mod unary_script_tests;
mod unary_tests;
