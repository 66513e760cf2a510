//! The fields of a line.
ghost use Rattle.std.specs.Prelude.{◌≡◌};

use fields::{Column, Field, LINE_FEED, WrongField, cut_into};

/// The seven fields of a line of a journal.
#[derive(Clone, Copy, Debug)]
pub struct Row<'a> {
    /// The kind of the line.
    pub kind: Field<'a>,
    /// The member's place.
    pub member: Field<'a>,
    /// The zone.
    pub zone: Field<'a>,
    /// The flow.
    pub flow: Field<'a>,
    /// The value of a reading, a correction or a payment, or the final value of a meter.
    pub value: Field<'a>,
    /// The start value of a meter.
    pub second: Field<'a>,
    /// The date.
    pub date: Field<'a>,
    // The fields are counted from 1.
    pub ghost kind_first: { kind.number ≡ 1 },
    pub ghost member_second: { member.number ≡ 2 },
    pub ghost zone_third: { zone.number ≡ 3 },
    pub ghost flow_fourth: { flow.number ≡ 4 },
    pub ghost value_fifth: { value.number ≡ 5 },
    pub ghost second_sixth: { second.number ≡ 6 },
    pub ghost date_seventh: { date.number ≡ 7 },
    // They stand on one line.
    pub ghost member_on_line: { member.line ≡ kind.line },
    pub ghost zone_on_line: { zone.line ≡ kind.line },
    pub ghost flow_on_line: { flow.line ≡ kind.line },
    pub ghost value_on_line: { value.line ≡ kind.line },
    pub ghost second_on_line: { second.line ≡ kind.line },
    pub ghost date_on_line: { date.line ≡ kind.line },
}

impl<'a> Row<'a> {
    ghost use Rattle.journal.specs.Rows.{ReadsSevenFields};
    ghost use Rattle.journal.specs.Steps.{ReadsColumns, ReadsSevenParts};

    /// The fields of a line, told with this number of the line; none where it has not its line feed or not seven fields.
    pub fn of(text: &'a [u8], line: usize) -> Option<Row<'a>>
        ensures { ReadsSevenFields text.now line result }
    {
        let [body @ .., LINE_FEED] = text else {
            return None;
        };
        Row::of_body(body, line)
    }

    // The fields of a line without its line feed, or none where it has not seven.
    fn of_body(body: &'a [u8], line: usize) -> Option<Row<'a>>
        ensures { ReadsSevenParts body.now line result }
    {
        let mut fields: [&[u8]; 7] = [b""; 7];
        cut_into(body, &mut fields)?;
        let [kind, member, zone, flow, value, second, date] = fields;
        Some(Row {
            kind: Field::new(line, 1, kind),
            member: Field::new(line, 2, member),
            zone: Field::new(line, 3, zone),
            flow: Field::new(line, 4, flow),
            value: Field::new(line, 5, value),
            second: Field::new(line, 6, second),
            date: Field::new(line, 7, date),
        })
    }

    // The values of the six columns after the kind, or where the first field stands that has not its form.
    pub(crate) fn columns<A: Column, B: Column, C: Column, D: Column, E: Column, F: Column>(
        self,
    ) -> Result<(A, B, C, D, E, F), WrongField>
        ensures { ReadsColumns self.entry A.Column.spelling B.Column.spelling C.Column.spelling
            D.Column.spelling E.Column.spelling F.Column.spelling result }
    {
        let member = A::read(self.member)?;
        let zone = B::read(self.zone)?;
        let flow = C::read(self.flow)?;
        let value = D::read(self.value)?;
        let second = E::read(self.second)?;
        let date = F::read(self.date)?;
        Ok((member, zone, flow, value, second, date))
    }
}
