//! The counts of answers.

/// The numbers of lines of a text with each answer.
#[derive(Clone, Copy)]
pub struct Counts {
    /// Registrations of pairs that were new.
    pub new: u32,
    /// Registrations of pairs that were there.
    pub replaced: u32,
    /// Registrations for which there was no room.
    pub full: u32,
    /// Observations that were cancelled.
    pub cancelled: u32,
    /// Notifications that were acknowledged.
    pub acknowledged: u32,
    /// Notifications that were rejected.
    pub reset: u32,
    /// Messages that were new.
    pub sent: u32,
    /// Messages that were sent again as they were.
    pub again: u32,
    /// Other answers.
    pub others: u32,
}

/// The counts of these lines, by their first words.
pub fn of(text: &str) -> Counts {
    let mut counts = Counts {
        new: 0,
        replaced: 0,
        full: 0,
        cancelled: 0,
        acknowledged: 0,
        reset: 0,
        sent: 0,
        again: 0,
        others: 0,
    };
    for line in text.lines() {
        let count = match line.split(' ').next() {
            Some("new") => &mut counts.new,
            Some("replaced") => &mut counts.replaced,
            Some("full") => &mut counts.full,
            Some("cancelled") => &mut counts.cancelled,
            Some("acknowledged") => &mut counts.acknowledged,
            Some("reset") => &mut counts.reset,
            Some("sent") => &mut counts.sent,
            Some("again") => &mut counts.again,
            _ => &mut counts.others,
        };
        *count = count.saturating_add(1);
    }
    counts
}
