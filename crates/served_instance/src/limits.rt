//! The limit that clauses and definitions call by its name, as a number.

ghost use Rattle.std.specs.Prelude.{◌≡◌};
ghost use Rattle.served_instance.specs.declared.instance.TheConstants.{CONNECTION_LIMIT};

/// How many open connections an instance has at most.
pub fn limit_of_connections()
    ensures { CONNECTION_LIMIT ≡ 64 }
{}
