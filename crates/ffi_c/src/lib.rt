// The static library for C: each function of `ffi` under the same name and with the same clauses, since such a library exports only
// functions of its own. No call requires anything of its arguments, which stand one by one, as C passes them.
#![tactic(auto)]

mod drawings;
mod files;
mod scans;
