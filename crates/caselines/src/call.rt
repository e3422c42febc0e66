// The calls that a line can ask for, by the word that it begins with.

// A call.
#[derive(Clone, Copy, PartialEq, Eq)]
pub enum Call {
    Boot,
    Build,
    Check,
    Cut,
    Ended,
    Item,
    Items,
    Layout,
    List,
    Order,
    Packets,
    Progress,
    Read,
    Reply,
    Start,
    Switch,
    Total,
    Write,
}

// What a word is that names no call.
#[derive(Clone, Copy)]
pub struct NoCall;

impl<'a> TryFrom<&'a [u8]> for Call {
    type Error = NoCall;

    // The call that a word names.
    fn try_from(word: &'a [u8]) -> Result<Call, NoCall> {
        match word {
            b"boot" => Ok(Call::Boot),
            b"build" => Ok(Call::Build),
            b"check" => Ok(Call::Check),
            b"cut" => Ok(Call::Cut),
            b"ended" => Ok(Call::Ended),
            b"item" => Ok(Call::Item),
            b"items" => Ok(Call::Items),
            b"layout" => Ok(Call::Layout),
            b"list" => Ok(Call::List),
            b"order" => Ok(Call::Order),
            b"packets" => Ok(Call::Packets),
            b"progress" => Ok(Call::Progress),
            b"read" => Ok(Call::Read),
            b"reply" => Ok(Call::Reply),
            b"start" => Ok(Call::Start),
            b"switch" => Ok(Call::Switch),
            b"total" => Ok(Call::Total),
            b"write" => Ok(Call::Write),
            _ => Err(NoCall),
        }
    }
}
