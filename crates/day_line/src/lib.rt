// What a line carries between venue and member in the day of demand 3: bytes, and what each message says. Definitions alone.
#![tactic(auto)]
