// Two subgroups of which the first would join the second. The areas hold a pattern before the call and after it.
use listform::areas;
use refusal::Refusal;
use tablecalls::looks;
use textform::out;

pub fn merge() {
    let mut numbers = [areas::NUMBER; 2];
    let mut sizes = [areas::WORD; 2];
    let mut bits = [areas::WORD; 7];
    let answer = merge::merge_entries_aware_subgroups(
        2,
        2,
        &[1, 2],
        &[1, 0, 0, 0, 2, 0, 0, 0],
        9.0,
        &mut numbers,
        &mut sizes,
        &mut bits,
    );
    show(answer);
    looks::untouched(b"merge", b"numbers were written", &numbers, 0);
    looks::untouched(b"merge", b"sizes were written", &sizes, 0);
    looks::untouched(b"merge", b"bits were written", &bits, 0);
}

fn show(answer: Result<(), Refusal>) {
    out::text(b"merge bits one word short");
    match answer {
        Err(refusal) => out::refused(refusal.number()),
        Ok(()) => out::text(b" done\n"),
    }
}
