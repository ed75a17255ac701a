// The calls on a post; each answers on a sheet.
use client::Client;
use clock::{Instant, Rand};
use octets::address::{prefix_len, x_is_unicast};
use octets::span::up_to;
use sheet::lent::lend;
use sheet::{Answer, Call, Form, Malformed, Record, Sheet, Value};
use tables::{Changed, Tables};
use told::Post;
use wire::reply::{option_len, option_octet};

// A post, room for a buffer that is lent or a reply, and the sheet for answers.
#[derive(Drop)]
pub struct Replay<'a> {
    post: Post,
    lent: &'a mut [u8],
    pub sheet: Sheet<'a>,
    // How many lines were read.
    pub lines: u64,
}

impl<'a> Replay<'a> {
    pub fn new(lent: &'a mut [u8], room: &'a mut [u8]) -> Replay<'a> {
        let post = Post::new(Instant { millis: 0 }, Rand { state: 0 });
        let sheet = Sheet::new(room);
        Replay {
            post,
            lent,
            sheet,
            lines: 0,
        }
    }

    // A line: it is passed over, sets the post, or is a call and answered.
    pub fn line(&mut self, line: &[u8]) -> Result<(), Malformed> {
        self.lines = self.lines.saturating_add(1);
        let Some(record) = Record::read(line)? else {
            return Ok(());
        };
        match record.form {
            Form::Call(call) => {
                self.call(call, &record);
                Ok(())
            }
            Form::Part(part) => self.post.set(part, &record),
            Form::Answer(_) => Err(Malformed::Unknown),
        }
    }

    fn call(&mut self, call: Call, record: &Record<'_>) {
        let [step, address, prefix, router, ..] = record.values;
        match call {
            Call::Poll => self.poll(record),
            Call::Process => self.process(record),
            Call::New => self.create(),
            Call::Reset => self.reset(record),
            Call::Get => self.get(record),
            Call::AddAddress => self.change(step, |tables| {
                tables.add_address(address.to(), prefix.to())
            }),
            Call::DropAddress => self.change(step, |tables| {
                tables.drop_address(address.to(), prefix.to())
            }),
            Call::AddRoute => self.change(step, |tables| {
                tables.add_route(address.to(), prefix.to(), router.to())
            }),
            Call::DropRoute => self.change(step, |tables| {
                tables.drop_route(address.to(), prefix.to(), router.to())
            }),
            Call::Mask => self.mask(record),
            Call::Option => self.option(record),
        }
    }

    // A creation has no step. A client that is refused is all zero.
    fn create(&mut self) {
        let Post { client, tables, .. } = self.post;
        let created = Client::new(client.settings, client.ignore_naks);
        self.post.leave(Client::or_zero(created), tables);
        self.post.answer_new(created.map(|_| ()), &mut self.sheet);
    }

    // Polls with a buffer as the record lends it.
    fn poll(&mut self, record: &Record<'_>) {
        let [step, length, fill, ..] = record.values;
        let n = self.lent.len().min(length.to());
        let buf = &mut self.lent[..n];
        lend(buf, fill.to());
        self.post.pass(step);
        let post = self.post;
        let polled = post.client.poll(post.tables, post.rand, post.now, buf);
        self.post.leave(polled.client, polled.tables);
        self.post.rand = polled.rand;
        self.post
            .answer_poll(polled.outcome, buf, fill.to(), &mut self.sheet);
    }

    fn process(&mut self, record: &Record<'_>) {
        let [step, source, reply_at, reply_len, ..] = record.values;
        let n = record.octets(reply_at, reply_len).copy_to(self.lent);
        self.post.pass(step);
        let post = self.post;
        let reply = up_to(self.lent, n);
        let processed = post
            .client
            .process(post.tables, source.to(), reply, post.now);
        self.post.leave(processed.client, processed.tables);
        self.post.answer_process(processed.outcome, &mut self.sheet);
    }

    fn reset(&mut self, record: &Record<'_>) {
        let [step, ..] = record.values;
        self.post.pass(step);
        let post = self.post;
        let was = post.client.reset(post.tables);
        self.post.leave(was.client, was.tables);
        self.post.answer_reset(was.outcome, &mut self.sheet);
    }

    // A manual change of the tables.
    fn change<F: FnOnce(Tables) -> Changed>(&mut self, step: Value, change: F)
        requires { F.IsAlwaysCallable change }
    {
        self.post.pass(step);
        let changed = change(self.post.tables);
        let client = self.post.client;
        self.post.leave(client, changed.tables);
        self.post.answer_change(changed.outcome, &mut self.sheet);
    }

    // Looks at the lease's store alone.
    fn get(&mut self, record: &Record<'_>) {
        let [step, kind, ..] = record.values;
        self.post.pass(step);
        let post = self.post;
        let outcome = if post.client.session.state.has_lease() {
            post.client.lease.options.get(kind.to())
        } else {
            Ok(None)
        };
        self.post.leave(post.client, post.tables);
        self.post.answer_get(outcome, &mut self.sheet);
    }

    // Looks at its argument alone, as the next does.
    fn mask(&mut self, record: &Record<'_>) {
        let [address, ..] = record.values;
        let prefix = prefix_len(address.to());
        self.sheet.write(
            Answer::Masked,
            &[
                x_is_unicast(address.to()).into(),
                prefix.is_some().into(),
                prefix.unwrap_or(0).into(),
            ],
        );
    }

    fn option(&mut self, record: &Record<'_>) {
        let [kind, reply_at, reply_len, ..] = record.values;
        let n = record.octets(reply_at, reply_len).copy_to(self.lent);
        let reply = up_to(self.lent, n);
        let kind = kind.to();
        let found = option_len(reply, kind);
        let len = found.unwrap_or(0);
        let mut data = [0; 255];
        // Octet by octet: what is compared is option_octet, by which a device reads.
        for (i, octet) in data.iter_mut().enumerate().take(len) {
            *octet = option_octet(reply, kind, i).unwrap_or(0);
        }
        self.sheet.write_octets(
            Answer::Optioned,
            &[found.is_some().into(), 0, len as u64],
            &data,
        );
    }
}
