//! The counts of verdicts.

/// The numbers of lines of a text with each verdict.
#[derive(Clone, Copy)]
pub struct Counts {
    /// Requests that were admitted.
    pub admitted: u32,
    /// Duplicates whose reply was kept.
    pub answered: u32,
    /// Duplicates without a reply.
    pub unanswered: u32,
    /// Requests for which there was no room.
    pub refused: u32,
}

/// The counts of these lines.
pub fn of(text: &str) -> Counts {
    let mut counts = Counts {
        admitted: 0,
        answered: 0,
        unanswered: 0,
        refused: 0,
    };
    for line in text.lines() {
        let count = match line {
            "admitted" => &mut counts.admitted,
            "repeated without a reply" => &mut counts.unanswered,
            "refused" => &mut counts.refused,
            _ => &mut counts.answered,
        };
        *count = count.saturating_add(1);
    }
    counts
}
