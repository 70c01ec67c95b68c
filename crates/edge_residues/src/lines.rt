// The lines that are printed.
use refusals::Refusal;

// Words, and a number.
pub fn number(rt: HostRuntime, words: &str, n: u64) {
    let _ = println!(rt; "{words}{n}");
}

// What an entry was asked, and "accepted", or "refused" and the number.
pub fn answer(rt: HostRuntime, words: &str, answer: Result<(), Refusal>) {
    let _ = match answer {
        Ok(()) => println!(rt; "{words}: accepted"),
        Err(refusal) => println!(rt; "{words}: {refusal}"),
    };
}
