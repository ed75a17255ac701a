// Answers: the first line, what a poll sends, and the post as the call leaves it.
use crate::post::Post;
use client::{NotTaken, PollAnswer};
use clock::Instant;
use reasons::Refusal;
use sheet::lent::changed;
use sheet::{Answer, Sheet};
use wire::Place;

// A poll that is refused is told with zeros (docs/TRACE.md): its lines have no gap for none.
const REFUSED: PollAnswer = PollAnswer {
    length: 0,
    source: 0,
    destination: 0,
    wake: Instant { millis: 0 },
    purge: false,
};

impl Post {
    pub fn answer_new(&self, outcome: Result<(), Refusal>, sheet: &mut Sheet<'_>) {
        sheet.write(Answer::Created, &[self.moment(), number_of(outcome)]);
        self.tell_settings(sheet);
        self.tell(sheet);
    }

    // With what was sent, and the lent buffer up to the last octet that is not as it was lent. The buffer, and the octet that it was
    // filled with, are the call's and no part of the post.
    pub fn answer_poll(
        &self,
        outcome: Result<PollAnswer, Refusal>,
        lent: &[u8],
        fill: u32,
        sheet: &mut Sheet<'_>,
    ) {
        let answer = outcome.unwrap_or(REFUSED);
        sheet.write(
            Answer::Polled,
            &[
                self.moment(),
                number_of(outcome),
                answer.wake.millis.into(),
                answer.purge.into(),
            ],
        );
        sheet.write(
            Answer::Sent,
            &[
                answer.length as u64,
                answer.source.into(),
                answer.destination.into(),
            ],
        );
        let written = changed(lent, fill).max(answer.length);
        sheet.write_octets(Answer::Buffer, &[0, written as u64], lent);
        self.tell(sheet);
    }

    pub fn answer_process(&self, outcome: Result<bool, NotTaken>, sheet: &mut Sheet<'_>) {
        self.answer_purge(Answer::Processed, outcome, sheet);
    }

    pub fn answer_reset(&self, outcome: Result<bool, Refusal>, sheet: &mut Sheet<'_>) {
        self.answer_purge(Answer::WasReset, outcome, sheet);
    }

    // Whether link state is to be purged.
    fn answer_purge<E: Copy + Into<u32>>(
        &self,
        form: Answer,
        outcome: Result<bool, E>,
        sheet: &mut Sheet<'_>,
    ) {
        let purge = outcome.unwrap_or(false);
        sheet.write(form, &[self.moment(), number_of(outcome), purge.into()]);
        self.tell(sheet);
    }

    // A manual change of the tables.
    pub fn answer_change(&self, outcome: Result<(), Refusal>, sheet: &mut Sheet<'_>) {
        sheet.write(Answer::Changed, &[self.moment(), number_of(outcome)]);
        self.tell(sheet);
    }

    // Where a stored option is, if it is.
    pub fn answer_get(&self, outcome: Result<Option<Place>, Refusal>, sheet: &mut Sheet<'_>) {
        let found = outcome.unwrap_or(None);
        let (start, len) = found.map_or((0, 0), |place| (place.start, place.len));
        sheet.write(
            Answer::Got,
            &[
                self.moment(),
                number_of(outcome),
                found.is_some().into(),
                start as u64,
                len as u64,
            ],
        );
        self.tell(sheet);
    }

    fn moment(&self) -> u64 {
        self.now.millis.into()
    }
}

// 0, or the number of a refusal or of a reply that is passed over. Programs that print it write this expression themselves.
fn number_of<T: Copy, E: Copy + Into<u32>>(outcome: Result<T, E>) -> u64 {
    match outcome {
        Ok(_) => 0,
        Err(error) => u64::from(error.into()),
    }
}
