// Captures read, collated and listed, observations stepped through, phases and flags: each call does what is promised of it, by its own contract.
// Nothing runs here. Read specs/CaptureCalls.antt.
#![tactic(auto)]
