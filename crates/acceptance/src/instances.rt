//! The servers of cases, and the instances that cases configure themselves.

use keyed_maps::MapKey;
use server_core::Server;
use server_events::{Configs, InstanceConfig, Limits};
use tool_programs::{Fault, Output};

/// Instances of these names, each with a quota of so many bytes.
pub fn configs(names: &[&str], quota: u64, output: &mut Output) -> Option<Configs> {
    let mut configs = Vec::new(output.alloc);
    for name in names {
        let name = output.string(String::from_str(output.alloc, name));
        let added = configs.push(InstanceConfig {
            name,
            quota,
            slots: 0,
            limits: Limits::usual(),
            parent: None,
        });
        output.expect(added);
    }
    match Configs::new(configs) {
        Ok(configs) => Some(configs),
        Err(_) => {
            output.fail(Fault::InputOrOutput);
            None
        }
    }
}

/// A server of these instances. It stands apart, so that whoever holds it is small.
pub fn server(configs: &Configs, output: &mut Output) -> Option<Box<Server>> {
    if let Ok(server) = Server::new(output.alloc, MapKey::known(), configs) {
        if let Ok(server) = Box::new(output.alloc, server) {
            return Some(server);
        }
    }
    output.fail(Fault::OutOfMemory);
    None
}
