// The bank's names in the book of outgoing receipts, without accents.
ghost use Rattle.std.specs.Prelude.{◌≡◌};

use crate::outgoing::{CHARGE, HEADER, INFORMATION, OutgoingReceipts, TRAILER};
use layouts::kinds::Kind;
use layouts::named::Named;

static KINDS: [Kind; 4] = [HEADER, CHARGE, INFORMATION, TRAILER];

static HEADER_NAMES: [&'static str; 18] = [
    "TIPO DE REGISTRO",
    "OPERACAO",
    "LITERAL DE REMESSA",
    "CODIGO DO SERVICO",
    "LITERAL DE SERVICO",
    "ISPB PARTICIPANTE",
    "CODIGO DE INSCRICAO",
    "CPF CNPJ",
    "AGENCIA",
    "CONTA",
    "TIPO CONTA",
    "CHAVE PIX",
    "DATA DE GERACAO",
    "CODIGO DO CONVENIO",
    "EXCLUSIVO PSP RECEBEDOR",
    "BRANCOS",
    "VERSAO DO ARQUIVO",
    "NUMERO SEQUENCIAL DO ARQUIVO",
];

static CHARGE_NAMES: [&'static str; 26] = [
    "TIPO DE REGISTRO",
    "CODIGO DE INSCRICAO",
    "CPF CNPJ",
    "AGENCIA",
    "CONTA",
    "TIPO",
    "CHAVE PIX",
    "TIPO COBRANCA",
    "COD. DE OCORRENCIA",
    "IDENTIFICADOR",
    "EXPIRACAO",
    "DATA DE VENCIMENTO",
    "ACEITE APOS VENCIMENTO",
    "VALOR ORIGINAL",
    "VALOR JUROS",
    "VALOR MULTA",
    "VALOR DESCONTO /ABATIMENTO",
    "PERMITE ALTERACAO",
    "CODIGO DE INSCRICAO DEVEDOR",
    "CPF CNPJ DEVEDOR",
    "NOME DEVEDOR",
    "SOLICITACAO AO PAGADOR OU CAMPO TEXTO LIVRE",
    "MULTIPLoS PAGAMENTOS",
    "EXCLUSIVO PSP RECEBEDOR",
    "BRANCOS",
    "NUMERO SEQUENCIAL DO REGISTRO",
];

static INFORMATION_NAMES: [&'static str; 10] = [
    "TIPO DE REGISTRO",
    "IDENTIFICADOR",
    "NOME",
    "VALOR",
    "NOME",
    "VALOR",
    "CODIGO DE ERRO",
    "BRANCOS",
    "NUMERO SEQUENCIAL DETALHE",
    "NUMERO SEQUENCIAL INFO ADICIONAIS",
];

static TRAILER_NAMES: [&'static str; 5] = [
    "TIPO DE REGISTRO",
    "BRANCOS",
    "VALOR TOTAL",
    "QTDE DE DETALHES",
    "NUMERO SEQUENCIAL",
];

impl Named for OutgoingReceipts {
    fn kinds(&self) -> &'static [Kind] {
        &KINDS
    }

    fn title(&self, kind: Kind) -> &'static str {
        match kind.mark as char {
            '0' => "REGISTRO HEADER DE ARQUIVO",
            '1' => "REGISTRO DETALHE (OBRIGATORIO)",
            '2' => "REGISTRO DETALHE INFORMACOES ADICIONAIS (OPCIONAL)",
            '9' => "REGISTRO TRAILER DE ARQUIVO",
            _ => "",
        }
    }

    fn names(&self, kind: Kind) -> &'static [&'static str] {
        match kind.mark as char {
            '0' => &HEADER_NAMES,
            '1' => &CHARGE_NAMES,
            '2' => &INFORMATION_NAMES,
            '9' => &TRAILER_NAMES,
            _ => &[],
        }
    }
}
