// Refusals with their places: what document 02's third request promises of them, over the definitions that the contracts cite. The statements stand in
// specs/.
#![tactic(auto)]
