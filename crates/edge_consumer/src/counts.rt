// The edges of the count of values: a consumer that was handed in with so many folded values takes one more, and a
// pair.
use consumer::ConstraintConsumer;
use edge_residues::lines;

fn behind(folded: u64) -> ConstraintConsumer {
    ConstraintConsumer {
        alphas: [2; 8],
        constraint_accs: [3; 8],
        count: 1,
        z_last: 1,
        lagrange_basis_first: 1,
        lagrange_basis_last: 1,
        folded,
    }
}

fn value(rt: HostRuntime, words: &str, folded: u64, value: u64) {
    let mut consumer = behind(folded);
    lines::answer(rt, words, consumer.constraint_last_row(value));
    lines::number(rt, "  folded ", consumer.folded);
}

pub fn values(rt: HostRuntime) {
    value(rt, "a value behind 4294967294", 4294967294, 5);
    value(rt, "a value behind 4294967295", 4294967295, 5);
    value(rt, "a value behind 4294967296", 4294967296, 5);
    value(rt, "p behind 4294967295", 4294967295, algebra::P);
}

fn pair(rt: HostRuntime, words: &str, folded: u64, masks: &[u64], lv: &[u64], nv: &[u64]) {
    match consumer_pair::fold_pair(behind(folded), masks, lv, nv) {
        Ok(consumer) => lines::number(rt, words, consumer.folded),
        Err(refusal) => lines::answer(rt, words, Err(refusal)),
    }
}

pub fn pairs(rt: HostRuntime, masks: &[u64], lv: &[u64], nv: &[u64]) {
    pair(
        rt,
        "a pair behind 4294967069, folded ",
        4294967069,
        masks,
        lv,
        nv,
    );
    pair(rt, "a pair behind 4294967070", 4294967070, masks, lv, nv);
}
