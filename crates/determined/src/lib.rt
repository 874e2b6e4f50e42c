// That each public function's contract determines what a call of it leaves. Nothing runs here.
// Read specs/Determined.antt; proofs/Public.antt has a line for each function.
#![tactic(auto)]
