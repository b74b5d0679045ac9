//! Tests of what the host has for the program: its folders, over real ones below the host's own folder for such, its sockets, and the words of the
//! command line. No contract says what a file of the host holds, or what comes over a socket, so these show it: that a put is found, also by a volume
//! that is opened later, that what a crash left half written is not, that a container is found by a later keeper of its lock, and that a client is
//! answered. Beside the sockets stand the doors in memory. Of the words of `serve` they show that the grammar is the one that was meant, and that `clap`,
//! told of the same command, reads the same.
#![tactic(auto)]

#[cfg(test)]
mod doors;
#[cfg(test)]
mod folders;
#[cfg(test)]
mod keepers;
#[cfg(test)]
mod notes;
#[cfg(test)]
mod rings;
#[cfg(test)]
mod stage;
#[cfg(test)]
mod steps;
#[cfg(test)]
mod stores;
#[cfg(test)]
mod volume;
#[cfg(test)]
mod watched;
#[cfg(test)]
mod way;
#[cfg(test)]
mod words;
