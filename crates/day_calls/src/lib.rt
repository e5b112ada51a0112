// Demand 3 of the session's calls over bytes, which are those that C has: the member's state is a buffer, and every step is one of the calls. The
// statements stand in specs/Demand3Calls.antt.
#![tactic(auto)]
