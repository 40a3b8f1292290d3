//! Tests alone: instrumented modules, their runs with hooks that accept their calls or refuse one, and the logs of
//! their runs. The body of the first module was worked out by hand, the figures of the others by an independent
//! instrumenter; the modules that have logs were instrumented by hand; turns and calls were counted by hand.
#![tactic(auto)]

#[cfg(test)]
mod buffers;
#[cfg(test)]
mod files;
#[cfg(test)]
mod forms;
#[cfg(test)]
mod hooked_runs;
#[cfg(test)]
mod logs;
#[cfg(test)]
mod refusing_hooks;
#[cfg(test)]
mod tests;
#[cfg(test)]
mod turns;
