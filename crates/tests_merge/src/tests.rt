//! Replay modules of generated parts.

mod handmade_parts;
