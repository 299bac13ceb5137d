// The calls of a round as definitions: each with its checks in order, and what each lent buffer holds afterwards. It has no code: the crates that
// make the calls are proved to do this. Rests on `scheme` for what is garbled and opened, on `session` for the checks that calls share, on `meter`.

#![tactic(auto)]
