// The garbling scheme as definitions: contributions, zero keys and masks, messages, rows, opening; and the theorem that opening undoes
// garbling, on every wire and at every party. It has no code: the crates that garble and open are proved to be these definitions.
// Rests on `pads` for the pads, on `counts` for rows and records, on `residue` for the arithmetic.

#![tactic(auto)]
