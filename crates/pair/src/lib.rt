// The two-party form as definitions: what the garbler draws, keys, halves and their missing row, rows, opening, and its calls, each with its checks in
// order; and the theorem that opening undoes garbling, on every wire. It has no code: the crates that garble and open for two are proved to be these
// definitions. A sibling of `scheme` and `calls`: it rests on the same rows and pads, with one sender and one receiver, on `counts` for moduli, on
// `session` and `meter` for the checks that calls share.

#![tactic(auto)]
