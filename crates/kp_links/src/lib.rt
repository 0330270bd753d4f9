// What a link to a server tells, as definitions: the exchanges over it, what is seen of the book of modules before and after each,
// when they are right, and when the link serves what a server was started with. To be read in the order Links, RightExchanges. There
// is no code: the calls of a link stand where they are made.
#![tactic(auto)]
