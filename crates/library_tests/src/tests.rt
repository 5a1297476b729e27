//! The tests: of trees that are made once, of the pool, and of trees that are walked; and others,
//! by the crates that they try.

mod conn_core_tests;
mod grpc_sending_tests;
mod http2_headers_tests;
mod http2_streams_tests;
mod made;
mod message_fields_tests;
mod one_byte;
mod pool;
mod trees;
