// The forms of docs/TRACE.md.

// A call.
#[derive(Clone, Copy, Debug, PartialEq, Eq)]
pub enum Call {
    Poll,
    Process,
    New,
    Reset,
    Get,
    AddAddress,
    DropAddress,
    AddRoute,
    DropRoute,
    Mask,
    Option,
}

// What sets the post in a list of calls, and, but for the first, tells it in an answer.
#[derive(Clone, Copy, Debug, PartialEq, Eq)]
pub enum Part {
    Start,
    Settings,
    Init,
    Discovering,
    Requesting,
    Renewing,
    Lease,
    Tables,
    Address,
    Route,
    Generator,
}

// The other lines of an answer.
#[derive(Clone, Copy, Debug, PartialEq, Eq)]
pub enum Answer {
    Sent,
    Buffer,
    Created,
    Polled,
    Processed,
    WasReset,
    Got,
    Changed,
    Masked,
    Optioned,
}

#[derive(Clone, Copy, Debug, PartialEq, Eq)]
pub enum Form {
    Call(Call),
    Part(Part),
    Answer(Answer),
}

impl From<Part> for Form {
    fn from(part: Part) -> Form {
        Form::Part(part)
    }
}

impl From<Answer> for Form {
    fn from(answer: Answer) -> Form {
        Form::Answer(answer)
    }
}

// What a list of calls may say, the most frequent first: there is no heap for a map.
const READ: [Form; 22] = [
    Form::Call(Call::Poll),
    Form::Call(Call::Process),
    Form::Part(Part::Settings),
    Form::Part(Part::Init),
    Form::Part(Part::Discovering),
    Form::Part(Part::Requesting),
    Form::Part(Part::Renewing),
    Form::Part(Part::Lease),
    Form::Part(Part::Tables),
    Form::Part(Part::Address),
    Form::Part(Part::Route),
    Form::Part(Part::Generator),
    Form::Part(Part::Start),
    Form::Call(Call::New),
    Form::Call(Call::Reset),
    Form::Call(Call::Get),
    Form::Call(Call::AddAddress),
    Form::Call(Call::DropAddress),
    Form::Call(Call::AddRoute),
    Form::Call(Call::DropRoute),
    Form::Call(Call::Mask),
    Form::Call(Call::Option),
];

impl Form {
    // The form of a line in a list of calls: the one that has its word. A form without fields has the whole line.
    pub fn of(line: &[u8]) -> Option<Form> {
        let word = word_of(line);
        READ.into_iter().find(|form| match form.text().strip_prefix(word) {
            Some([]) => line == word,
            Some(fields) => fields.starts_with(b" "),
            None => false,
        })
    }

    pub fn text(self) -> &'static [u8] {
        match self {
            Form::Call(call) => call.text(),
            Form::Part(part) => part.text(),
            Form::Answer(answer) => answer.text(),
        }
    }
}

// What a line begins with, up to the first space.
fn word_of(line: &[u8]) -> &[u8] {
    match line.iter().position(|c| *c == b' ') {
        Some(n) => &line[..n],
        None => line,
    }
}

impl Call {
    fn text(self) -> &'static [u8] {
        match self {
            Call::Poll => b"poll step=%w length=%h fill=%c",
            Call::Process => b"process step=%w source=%a reply=%x",
            Call::New => b"new",
            Call::Reset => b"reset step=%w",
            Call::Get => b"get step=%w kind=%c",
            Call::AddAddress => b"add_address step=%w address=%a/%c",
            Call::DropAddress => b"drop_address step=%w address=%a/%c",
            Call::AddRoute => b"add_route step=%w network=%a/%c router=%a",
            Call::DropRoute => b"drop_route step=%w network=%a/%c router=%a",
            Call::Mask => b"mask address=%a",
            Call::Option => b"option kind=%c reply=%x",
        }
    }
}

impl Part {
    fn text(self) -> &'static [u8] {
        match self {
            Part::Start => b"start moment=%w generator=%q",
            Part::Settings => {
                b"settings medium=%c mtu=%h hardware=%x offload=%b name=%x listed=%b list=%x extra=%x capped=%b maximum=%w ignore_naks=%b"
            }
            Part::Init => b"init id=%w",
            Part::Discovering => b"discovering id=%w retry_at=%w",
            Part::Requesting => {
                b"requesting id=%w retry_at=%w retry=%h server=%a identifier=%a requested=%a"
            }
            Part::Renewing => {
                b"renewing id=%w renew_at=%w rebind_at=%w expires_at=%w rebinding=%b"
            }
            Part::Lease => {
                b"lease server=%a identifier=%a address=%a/%c routed=%b router=%a dns=%c %a %a %a options=%x"
            }
            Part::Tables => b"tables generation=%w addresses=%c routes=%c",
            Part::Address => b"address address=%a/%c dhcp=%b",
            Part::Route => b"route network=%a/%c router=%a dhcp=%b",
            Part::Generator => b"generator state=%q",
        }
    }
}

impl Answer {
    fn text(self) -> &'static [u8] {
        match self {
            Answer::Sent => b"sent length=%h source=%a destination=%a",
            Answer::Buffer => b"buffer bytes=%x",
            Answer::Created => b"created moment=%w number=%c",
            Answer::Polled => b"polled moment=%w number=%c wake=%w purge=%b",
            Answer::Processed => b"processed moment=%w number=%c purge=%b",
            Answer::WasReset => b"was_reset moment=%w number=%c purge=%b",
            Answer::Got => b"got moment=%w number=%c found=%b place=%h length=%h",
            Answer::Changed => b"changed moment=%w number=%c",
            Answer::Masked => b"masked unicast=%b contiguous=%b prefix=%c",
            Answer::Optioned => b"optioned found=%b data=%x",
        }
    }
}
