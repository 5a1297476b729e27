//! Tests of libraries.
//!
//! Texts of a pool are put in and read back, alone and by instances side by side, and trees of many
//! shapes are walked, and such as are made once: tests of `blob_pool`,
//! `instance_view`, `quota_evict`, `actions` and `made_trees`.
//!
//! Others are of `protobuf_wire`, `http2_streams`, `grpc_sending`, `conn_core`.
//! More are vectors of the program `vectors` and scripts of `acceptance`.
#![tactic(auto)]

#[cfg(test)]
mod admissions;
#[cfg(test)]
mod mixed;
#[cfg(test)]
mod one_digest;
#[cfg(test)]
mod shapes;
#[cfg(test)]
mod sharing;
#[cfg(test)]
mod stored;
#[cfg(test)]
mod tests;
#[cfg(test)]
mod texts;
