// Demand 3: one trading day, any logins, line breaks and cuts, over the definitions that the contracts of session, venue and book cite. The
// statements stand in specs/Demand3.antt.
#![tactic(auto)]
