use vx_base::ListOf;

/// Numbers of the calls of one object, which count from 0.
pub type CallList = ListOf<u64>;
