// What a session pays: the value of positions and of the day's trades, account by account, in kopecks. The rules, and a trade of
// the blotter.
#![tactic(auto)]

pub mod trade;
