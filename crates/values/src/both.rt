// The register of what an expression makes of the low words and of the high words of registers: in it, a register's name
// stands for its word. No element of any format crosses the two.
// A macro: with `vectors::words::by_words`, which takes a closure, kernels of the second engine lose up to a fifth of
// their speed.
macro_rules! by_words {
    ($($r:ident),+ => $word:expr) => {
        memory::Register {
            low: {
                $(let $r = $r.low;)+
                $word
            },
            high: {
                $(let $r = $r.high;)+
                $word
            },
        }
    };
}

pub(crate) use by_words;
