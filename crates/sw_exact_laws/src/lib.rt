//! What a listing across the shards of a container is of after a whole run of the machine (`sw_machine`), put together from three laws.
//!
//! After an honest, plain and rooted run that began with nothing, each replica of a container of which no record waits holds all that reached any device
//! (`sw_held_laws`), and its rows, and those of its shards, are those of writes of it (`sw_origin_laws`). Lists of ranges are all names, each once: so was the
//! list that a device set, and closing or emptying changes no bound. So a listing across its shards (`sw_across_laws`), over a door that is alone until then,
//! lists exactly what is asked of the rows of its live objects ([`laws`], `specs/Laws.antt`): at each of its replicas, split or not, whatever failed, was lost,
//! came again or was restarted before.
//!
//! What is asked besides: two puts of one name and time have one content, names of objects are text without a byte 0, and each container has a replica of the
//! number that is asked of shards. The next layer up, `sw_account_laws`, lets a run begin with what earlier ones left.
#![tactic(auto)]

pub mod laws;
