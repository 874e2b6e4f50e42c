// What is promised, in document 01's words. Nothing runs here: theorems over the definitions that every contract cites.
// Read specs/Demand1.antt, Demand2.antt and Demand3.antt first, which follow the demands sentence by sentence, and Exported.antt, which says them
// of the functions that C and Rust link. Files of proofs/ only inhabit them: `demand_1`, `demand_2`, `demand_3`, `exported`. The worked examples and
// the idle programs stand in `examples`.
#![tactic(auto)]
