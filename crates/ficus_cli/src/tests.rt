//! Tests of the program as one call, over sources, sinks, links and disks in memory.
mod alone;
mod altered_link;
mod calls;
mod disks;
mod links;
mod modes;
mod stops;
mod streams;
mod volumes;
