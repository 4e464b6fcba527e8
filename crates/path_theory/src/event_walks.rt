//! Sets of tuples that walk over the events of a block, one event after the other: which tuples stand behind the last event, and what
//! happens to objects and to the global state on the way. It stands over the theory of paths alone, and knows no C and no Metal.
