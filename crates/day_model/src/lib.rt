// The abstract day of demand 3: member, line, venue, book and log as values, any events, and what holds at every moment. Definitions and
// theorems alone; the code that meets them stands in the crates of the session and the venue.
#![tactic(auto)]
