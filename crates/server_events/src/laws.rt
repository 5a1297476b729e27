//! Which configurations have no fault, and which events are an instance's own.
ghost use Rattle.std.specs.Prelude.{◌≡◌, ◌≢◌, ◌↔◌, ◌++◌, ◌∷◌, [], ℕ, List, None, Some, map};
ghost use Rattle.server_events.specs.Configs.{config_fault, parents_of};
ghost use Rattle.server_events.specs.Events.{EventValue, own_events};
ghost use Rattle.server_events.specs.Faults.{AreConfigs, AreParents, IsFaultOf};
ghost use Rattle.server_events.specs.Shown.{config_value};
ghost use Rattle.server_events.specs.declared.fault.ConfigFault.{ConfigFault};

use crate::configs::InstanceConfig;

/// Configurations have no fault exactly where a server may have them, and a fault exactly where it
/// is the first in its order: the number of instances, then instance by instance, and then parent
/// by parent.
pub fn the_fault_is_the_first(configs: &[InstanceConfig])
    ensures none { (config_fault (map config_value configs.now) ≡ None)
        ↔ AreConfigs (map config_value configs.now) }
    ensures some { (fault : ConfigFault) →
        (config_fault (map config_value configs.now) ≡ Some fault)
        ↔ IsFaultOf (map config_value configs.now) fault }
{}

/// Where configurations have no fault, an instance that builds on one builds on another one of
/// them, and that builds on none.
pub fn a_parent_builds_on_none(configs: &[InstanceConfig])
    ensures { config_fault (map config_value configs.now) ≡ None
        → AreParents (parents_of (map config_value configs.now)) }
{}

/// An instance's own events are those of its number, each once and in order; others change nothing.
pub fn own_events_are_those_of_the_instance()
    ensures append { (instance : ℕ) (earlier later : List EventValue)
        → own_events instance (earlier ++ later) ≡ own_events instance earlier
        ++ own_events instance later }
    ensures own { (event : EventValue)
        → own_events event.instance (event ∷ []) ≡ event.lone ∷ [] }
    ensures other { (instance : ℕ) (event : EventValue)
        → event.instance ≢ instance → own_events instance (event ∷ []) ≡ [] }
{}
