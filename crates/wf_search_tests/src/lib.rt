//! Tests of the search, of the workers that share it, and of a whole run of `solve`, through their
//! public calls. Those of
//! kernels, boxes and searches compare with values that were worked out by hand. The event machine,
//! the board, the handouts and the pool are tested in one thread, in a known order, and in several
//! threads, in any order.
#![tactic(auto)]

/// The line that removes a value of a process in an execution.
#[cfg(test)]
macro_rules! lost {
    ($execution:literal, $process:literal, $value:literal) => {
        Line::Remove {
            execution: $execution,
            process: $process,
            value: $value,
        }
    };
}

#[cfg(test)]
mod boards;
#[cfg(test)]
mod boxes;
#[cfg(test)]
mod cores;
#[cfg(test)]
mod handouts;
#[cfg(test)]
mod holds;
#[cfg(test)]
mod lanes;
#[cfg(test)]
mod marks;
#[cfg(test)]
mod pools;
#[cfg(test)]
mod runs;
#[cfg(test)]
mod searches;
#[cfg(test)]
mod sets;
#[cfg(test)]
mod tasks;
