ghost use Rattle.std.specs.Prelude.{◌≡◌, IfOk, OnErr};
ghost use Rattle.dl_formats.specs.NodeBytes.{IsConf};
ghost use Rattle.dl_rules_stream.specs.Seeks as rule;
ghost use Rattle.dl_requests.specs.Turns.{IsTurn};
ghost use Rattle.dl_requests.specs.Tasks.{View, new_view, GoesTo, HearsTo};
ghost use Rattle.dl_seek.specs.Seeking.{given_of, seek_order, IsReader, SeekArgs, SeeksAt, SeeksFor};

use crate::seek_answers::after_answer;
use crate::seek_given::SeekGiven;
use crate::seek_stage::SeekStage;
use dl_formats::conf::Conf;
use dl_msg::heard::Heard;
use dl_msg::turn::Turn;
use dl_reader::reader::LogReader;
use dl_requests::moves::take;
use dl_types::memory::NoMemory;
use dl_types::name::Name;
use dl_types::start::Start;
use std::alloc::Global;
use std::marker::Model;

/// An order that begins a reader of a stream: it reads the stream's point, and makes the reader.
#[derive(Drop)]
pub struct Seek {
    alloc: Global,
    given: SeekGiven,
    stage: SeekStage,
}

impl Model for Seek {
    ghost use Rattle.dl_seek.specs.Seeking.{args_of, SeekFacts};

    ghost Value = { SeekFacts };

    ghost view = { λ t. record { given = args_of t.given; stage = t.stage } };
}

impl Seek {
    /// An order that begins a reader of this stream, and its first turn: it asks for the stream's segments and its point. The
    /// configuration is one that has bytes.
    #[tactic(auto, unfolding(dl_rules_stream::specs::Orders::stage_after))]
    pub fn start(
        alloc: Global,
        stream: &Name,
        from: Start,
        conf: Conf,
    ) -> Result<(Seek, Turn<LogReader>), NoMemory>
        requires { IsConf conf }
        ensures turn { let given = given_of stream.now from conf in IfOk result (λ x.
            IsTurn (IsReader given) (rule.seek_first stream.now).1 x.1) }
        ensures stands { let given = given_of stream.now from conf in
            IfOk result (λ x. SeeksFor (new_view given) x.0) }
    {
        let given = SeekGiven {
            stream: stream.share()?,
            from,
            conf,
        };
        let request = given.list(alloc)?;
        let task = Seek {
            alloc,
            given,
            stage: SeekStage::Seeking,
        };
        Ok((task, Turn::Ask(request)))
    }

    /// Hears the reply to its request, and answers with its next turn. It is done with a reader that stands where it was to
    /// begin, by the stream's point. A stream that isn't there is `NoStream`; where bytes are not in the form of their node, or
    /// the request fails otherwise, the order gives up at their path, or the node has moved on. Replies that aren't to its
    /// request, and messages of bookies, change nothing. Want of memory leaves the order as it is.
    #[tactic(auto, unfolding(dl_rules_stream::specs::Orders::stage_after))]
    pub fn hear(&mut self, heard: &Heard) -> Result<Turn<LogReader>, NoMemory>
        ensures goes { IfOk result (λ turn. (x : SeekArgs) (stage : rule.SeekStage)
            → SeeksAt x stage self.old → GoesTo (IsReader x) (SeeksAt x)
            (rule.seek_hears x.stream stage heard.now) turn self.new) }
        ensures view { IfOk result (λ turn. (v : View SeekArgs) → SeeksFor v self.old
            → HearsTo (IsReader v.given) seek_order SeeksFor v heard.now turn self.new) }
        ensures kept { OnErr result (self.new ≡ self.old) }
    {
        let Heard::Reply(answer) = heard else {
            return Ok(Turn::Wait);
        };
        let step = after_answer(self.alloc, &self.given, &self.stage, answer)?;
        Ok(take(&mut self.stage, step))
    }
}
