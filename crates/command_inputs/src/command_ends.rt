//! Commands that come to a result or refuse an input: what they do, and how their calls end.
