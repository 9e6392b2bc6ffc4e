#![tactic(auto)]

// Facts that every crate cites, stated once: cases, lists, lent buffers, tables, keys of a match.
