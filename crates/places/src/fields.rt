// The fields of a message in the places of an array.
ghost use Rattle.std.specs.Prelude.{◌≡◌};
ghost use Rattle.places.specs.Fields.{fields_with};

use message::Taken;

// What the places say of a message: its value and head, the header and the size of its bytes, a verdict and
// the length of a reply. The verdict is a number and no `Option`: `store` took every number, and `fields_with` is over them.
#[derive(Clone, Copy, Debug, PartialEq, Eq)]
pub struct Fields {
    pub taken: Taken,
    pub header: u16,
    pub size: usize,
    pub verdict: u64,
    pub reply: usize,
}

impl Fields {
    // Puts them into all places. The payload stands behind the head, and the check behind the payload.
    #[tactic(auto, using(crate::proofs::Spelled::stored16), unfolding(crate::specs::Fields::fields_with))]
    pub fn store(self, places: &mut [u64; crate::FIELDS])
        ensures { places.new ≡ fields_with self.header self.taken.message self.taken.head self.size self.verdict self.reply }
    {
        let Taken { message: m, head } = self.taken;
        let start = head.length;
        let check = m.check_length();
        let payload = self.size.saturating_sub(check).saturating_sub(start);
        places[crate::HEADER] = u64::from(self.header);
        places[crate::FLAGS] = u64::from(head.flags);
        places[crate::ID] = u64::from(m.id);
        places[crate::SOURCE] = m.source;
        places[crate::DESTINATION] = m.destination;
        places[crate::KEY] = u64::from(m.key);
        places[crate::KIND] = u64::from(m.kind);
        places[crate::EXCHANGE] = u64::from(m.exchange);
        places[crate::PROFILE] = u64::from(m.profile);
        places[crate::ACKNOWLEDGED] = u64::from(m.acknowledged);
        // From here on by casts: of a `usize` there is no `From` to a `u64`.
        places[crate::PAYLOAD_START] = start as u64;
        places[crate::PAYLOAD_LENGTH] = payload as u64;
        places[crate::CHECK_START] = (start + payload) as u64;
        places[crate::CHECK_LENGTH] = check as u64;
        places[crate::VERDICT] = self.verdict;
        places[crate::REPLY_LENGTH] = self.reply as u64;
    }
}
