//! Tests of messages and of the servers of objects, replicas and containers over their public calls. What the contracts say is proved for every
//! input, so these show what no contract can: that the worked values are the ones that were meant, what requests and replies look like on the wire,
//! that requests come out of a source however it cuts its bytes, and that a call succeeds while there is memory.
#![tactic(auto)]

#[cfg(test)]
mod containers;
#[cfg(test)]
mod messages;
#[cfg(test)]
mod objects;
