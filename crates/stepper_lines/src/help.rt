// The keys in words.
use crate::print::text;

pub fn help() {
    text(
        b"Keys, one a line:\n  \
        (empty)  forward: steps the marked row; at a CALL the reply is asked for\n  \
        g N      go: runs N steps, fewer where it comes to the end, to a CALL\n           \
        or to a step that is refused\n  \
        b        back: takes the last step back\n  \
        r        reset: opens the program again\n  \
        a        about the current row: a CALL's arguments and access sets,\n           \
        a frame's references, and how many nodes its type check looked at,\n           \
        the row that a jump leads to, what a CONVERT gives\n  \
        c        type check of the whole program\n  \
        x        REAL words as bits, on and off\n  \
        m        more: all rows, regions and cells in full, on and off\n  \
        o FILE   opens another file\n  \
        p        the page of refusals: what is turned down, why, and who can mend it\n  \
        h        this help\n  \
        q        quit\n\
        A reply's row is: argument, offset, value. An empty line ends the reply.\n\
        A change stands beside its cell: old -> new; after g that of the whole run.\n\
        After .. the key m shows the rest.\n\
        N always suffice: a journal of N entries is never full, in any order of keys.\n\
        no length is sure: the rows count more entries than a journal can have; or one\n  \
        is a jump, and a loop takes any number of steps, of at most 65 entries each.\n",
    );
}

pub fn no_such_key() {
    text(b"no such key; keys: (empty) b r a c x m p h q, g N, o FILE; h says what each does\n");
}
