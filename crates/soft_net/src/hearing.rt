//! What a switch does with a message, and what it answers.
ghost use Rattle.std.specs.Prelude.{◌≡◌, ◌≤◌, ◌<◌, ◌^◌, ◌∷◌, [], IfOk, OnOk, OnErr, filter, length, map, option_to_list};
ghost use Rattle.std.specs.BTreeMap.{values};
ghost use Rattle.of10_actions.specs.Actions.{AreInRange};
ghost use Rattle.of10_msgs.specs.Commands.{command_at};
ghost use Rattle.of10_msgs.specs.Ranges.{IsClear, IsMessage};
ghost use Rattle.of10_stats.specs.Reading.{request_in};
ghost use Rattle.soft_net.specs.Answers.{answers_to, answers_to_command, answers_to_request, asked_entries, asked_port};
ghost use Rattle.soft_net.specs.Answers.{is_asked, is_here as is_here_of};
ghost use Rattle.soft_net.specs.Answers.{removals, replied, stat};
ghost use Rattle.soft_net.specs.Changes.{added, after, after_command, deleted, modified};
ghost use Rattle.soft_net.specs.Tables.{is_selected};

use crate::answer::Answer;
use crate::entry::SoftEntry;
use crate::selection::Selection;
use crate::switch::SoftSwitch;
use cv_io::{List, Memory};
use of10_actions::port;
use of10_match::read;
use of10_msgs::{Body, Command, FlowMod, MATCH, Message};
use of10_stats::{FlowStat, PortStat, ReplyBody, StatsReply, StatsRequest, read_request};

/// The number that asks for all tables.
const ALL_TABLES: u8 = 255;

/// The port, where a request for this number asks for it.
fn asked(port_no: u16, stat: &PortStat) -> Option<PortStat>
    ensures { option_to_list result ≡ asked_port port_no stat.now }
{
    if port_no == port::NONE || port_no == stat.port_no {
        Some(*stat)
    } else {
        None
    }
}

/// Whether the only table, of number 0, is asked for.
fn is_here(table_id: u8) -> bool
    ensures { result ≡ is_here_of table_id }
{
    table_id == 0 || table_id == ALL_TABLES
}

impl SoftSwitch {
    /// Does what a message asks for, and gives what it is answered: FLOW_MOD, BARRIER_REQUEST and
    /// STATS_REQUEST for FLOW and PORT. All else is passed over; `send` is for a PACKET_OUT. The switch stays
    /// as it was where memory is wanted.
    pub fn hear(&mut self, message: &Message) -> Result<List<Answer>, Memory>
        requires { IsMessage message.now }
        ensures table { OnOk result (self.new.table ≡ after self.old.table message.now.body) }
        ensures answers { IfOk result (λ answers. answers
            ≡ answers_to self.old.table (values self.old.ports) message.now) }
        ensures memory { OnErr result (self.new.table ≡ self.old.table) }
        ensures ports { self.new.ports ≡ self.old.ports }
    {
        let xid = message.xid;
        match &message.body {
            Body::FlowMod(m) => self.change(m),
            Body::BarrierRequest => self.answer(Answer::Message(Message {
                xid,
                body: Body::BarrierReply,
            })),
            Body::StatsRequest { body } => self.tell(xid, body.as_slice()),
            _ => Ok(List::new(self.alloc)),
        }
    }

    /// One answer.
    fn answer(&self, answer: Answer) -> Result<List<Answer>, Memory>
        ensures { IfOk result (λ answers. answers ≡ answer ∷ []) }
    {
        let mut answers = List::new(self.alloc);
        answers.push(answer)?;
        Ok(answers)
    }

    /// What a request for statistics is answered.
    fn tell(&self, xid: u32, body: &[u8]) -> Result<List<Answer>, Memory>
        requires room { 4 ≤ length body.now }
        requires fits { length body.now < 2 ^ 32 }
        ensures { IfOk result (λ answers. answers
            ≡ answers_to_request self.now.table (values self.now.ports) xid (request_in body.now)) }
    {
        match read_request(body) {
            Ok(
                StatsRequest::Flow {
                    m,
                    table_id,
                    out_port,
                },
            ) => {
                let entries = self.flow_stats(&m, table_id, out_port)?;
                self.statistics(xid, ReplyBody::Flow { entries })
            }
            Ok(StatsRequest::Port { port_no }) => {
                let ports = self.port_stats(port_no)?;
                self.statistics(xid, ReplyBody::Port { ports })
            }
            _ => Ok(List::new(self.alloc)),
        }
    }

    fn statistics(&self, xid: u32, body: ReplyBody) -> Result<List<Answer>, Memory>
        ensures { IfOk result (λ answers. answers ≡ replied xid body) }
    {
        self.answer(Answer::Statistics {
            xid,
            reply: StatsReply { more: false, body },
        })
    }

    /// What is told of the entries that a request asks for.
    fn flow_stats(
        &self,
        m: &[u8; MATCH],
        table_id: u8,
        out_port: u16,
    ) -> Result<List<FlowStat>, Memory>
        ensures { IfOk result (λ told. told ≡ map stat (asked_entries self.now.table m.now table_id out_port)) }
    {
        if is_here(table_id) {
            let selection = Selection::Covered(read(m).normal);
            let serials = self.table.selected(self.alloc, &selection, out_port)?;
            self.table.stats(self.alloc, serials.as_slice())
        } else {
            Ok(List::new(self.alloc))
        }
    }

    /// What is told of one port, or of all.
    fn port_stats(&self, port_no: u16) -> Result<List<PortStat>, Memory>
        ensures { IfOk result (λ told. told ≡ filter (is_asked port_no) (values self.now.ports)) }
    {
        let mut told = List::new(self.alloc);
        for stat in self.ports.values() {
            told.push_some(asked(port_no, stat))?;
        }
        Ok(told)
    }

    /// Does what a FLOW_MOD asks for.
    fn change(&mut self, m: &FlowMod) -> Result<List<Answer>, Memory>
        requires clear { IsClear m.now.m }
        requires actions { AreInRange m.now.actions }
        ensures table { OnOk result (self.new.table ≡ after_command (command_at m.now.command) self.old.table m.now) }
        ensures answers { IfOk result (λ answers. answers
            ≡ answers_to_command (command_at m.now.command) self.old.table m.now) }
        ensures memory { OnErr result (self.new.table ≡ self.old.table) }
        ensures ports { self.new.ports ≡ self.old.ports }
    {
        match Command::from_number(m.command) {
            Some(Command::Add) => self.add(m),
            Some(Command::Modify) => self.modify(m, &Selection::covered_by(m)),
            Some(Command::ModifyStrict) => self.modify(m, &Selection::strict(m)),
            Some(Command::Delete) => self.delete(m, &Selection::covered_by(m)),
            Some(Command::DeleteStrict) => self.delete(m, &Selection::strict(m)),
            None => Ok(List::new(self.alloc)),
        }
    }

    /// Adds the entry of a FLOW_MOD, unless all numbers are given.
    fn add(&mut self, m: &FlowMod) -> Result<List<Answer>, Memory>
        requires clear { IsClear m.now.m }
        requires actions { AreInRange m.now.actions }
        ensures table { OnOk result (self.new.table ≡ added self.old.table m.now) }
        ensures answers { IfOk result (λ answers. answers ≡ []) }
        ensures memory { OnErr result (self.new.table ≡ self.old.table) }
        ensures ports { self.new.ports ≡ self.old.ports }
    {
        let serial = self.table.next();
        if serial < u64::MAX {
            self.table.put(SoftEntry::of(serial, m)?)?;
        }
        Ok(List::new(self.alloc))
    }

    /// Takes out the entries that a FLOW_MOD means, and tells of those that ask for it.
    fn delete(&mut self, m: &FlowMod, selection: &Selection) -> Result<List<Answer>, Memory>
        ensures table { OnOk result (self.new.table ≡ deleted selection.now self.old.table m.now) }
        ensures answers { IfOk result (λ answers. answers
            ≡ removals (filter (is_selected selection.now m.now.out_port) self.old.table.entries)) }
        ensures memory { OnErr result (self.new.table ≡ self.old.table) }
        ensures ports { self.new.ports ≡ self.old.ports }
    {
        let serials = self.table.selected(self.alloc, selection, m.out_port)?;
        let told = self.table.removals(self.alloc, serials.as_slice())?;
        self.table.take_all(serials.as_slice());
        Ok(told)
    }

    /// Gives the entries that a FLOW_MOD means its actions; where there is none, adds its entry.
    fn modify(&mut self, m: &FlowMod, selection: &Selection) -> Result<List<Answer>, Memory>
        requires clear { IsClear m.now.m }
        requires actions { AreInRange m.now.actions }
        ensures table { OnOk result (self.new.table ≡ modified selection.now self.old.table m.now) }
        ensures answers { IfOk result (λ answers. answers ≡ []) }
        ensures memory { OnErr result (self.new.table ≡ self.old.table) }
        ensures ports { self.new.ports ≡ self.old.ports }
    {
        let serials = self.table.meant(selection)?;
        if serials.is_empty() {
            return self.add(m);
        }
        self.table
            .set_all(self.alloc, serials.as_slice(), &m.actions)?;
        Ok(List::new(self.alloc))
    }
}
